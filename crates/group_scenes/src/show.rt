//! How groups are written.

use print::After;
use queues::Fragments;
use std::fmt;

/// Groups that wait: first number, last update, filled places; then the handle in each place, or -.
#[derive(Clone, Copy)]
pub struct Waiting<'a>(pub &'a [Fragments]);

/// The handle in a place, or - where the mark is not 1.
#[derive(Clone, Copy)]
struct Place(u32, u32);

impl fmt::Display for Place {
    fn fmt<W: fmt::Write>(&self, f: &mut fmt::Formatter<W>) -> fmt::Result {
        if self.0 == 1 {
            write!(f, "{}", self.1)
        } else {
            f.write_str("-")
        }
    }
}

impl fmt::Display for Waiting<'_> {
    fn fmt<W: fmt::Write>(&self, f: &mut fmt::Formatter<W>) -> fmt::Result {
        for g in self.0 {
            write!(
                f,
                " {}{}{}:",
                g.first,
                After(g.updated),
                After(g.count.into())
            )?;
            let places = g.marks.iter().zip(&g.handles).take(g.len as usize);
            f.write_joined(places.map(|(mark, handle)| Place(*mark, *handle)), ".")?;
        }
        Ok(())
    }
}
