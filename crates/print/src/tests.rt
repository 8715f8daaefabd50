//! What no clause says: the text of bundles.
use crate::Made;
use queues::Bundles;
use std::io::Write;

fn written(b: &Bundles) -> [u8; 12] {
    let mut text = [b'_'; 12];
    let mut left: &mut [u8] = &mut text;
    let _ = write!(left, "{}", Made(b));
    text
}

/// The third bundle has a length past the handles that are left, and those after it are empty.
#[test]
fn writes_each_bundle_after_a_blank(rt: HostRuntime) {
    let mut b = Bundles::new();
    b.handles[..4].copy_from_slice(&[7, 8, 9, 10]);
    b.lengths[..3].copy_from_slice(&[1, 3, 61]);
    for (len, want) in [
        (0, b"____________"),
        (1, b" 7__________"),
        (2, b" 7 8.9.10___"),
        (3, b" 7 8.9.10___"),
        (4_000_000_000, b" 7 8.9.10___"),
    ] {
        b.len = len;
        assert_eq!(rt; &written(&b), want, "{len} bundles");
    }
}
