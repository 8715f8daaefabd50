//! What the programs print, as values to put into a format. Nothing here allocates.
#![tactic(auto)]

ghost use Rattle.queues.specs.Made.{IsBundles};

#[cfg(test)]
mod tests;

use packet::Refusal;
use queues::Bundles;
use std::io::Write;
use std::{fmt, io};

/// `yes` or `no`.
#[derive(Clone, Copy)]
pub struct YesNo(pub bool);

/// `ok`, or `no` and the number of the refusal.
#[derive(Clone, Copy)]
pub struct Answer(pub Result<(), Refusal>);

/// Each word after a blank.
#[derive(Clone, Copy)]
pub struct Words<'a>(pub &'a [u32]);

/// A number after a comma.
#[derive(Clone, Copy)]
pub struct After(pub u64);

/// A bundle: its handles with dots between.
#[derive(Clone, Copy)]
pub struct Bundle<'a>(pub &'a [u32]);

/// The bundles in the order in which they are handed out: each after a blank, its handles with dots between. They may be any: where a
/// length is more than the handles that are left, what is written ends before that bundle.
#[derive(Clone, Copy)]
pub struct Made<'a>(pub &'a Bundles);

impl fmt::Display for YesNo {
    fn fmt<W: fmt::Write>(&self, f: &mut fmt::Formatter<W>) -> fmt::Result {
        f.write_str(if self.0 { "yes" } else { "no" })
    }
}

impl fmt::Display for Answer {
    fn fmt<W: fmt::Write>(&self, f: &mut fmt::Formatter<W>) -> fmt::Result {
        match self.0 {
            Ok(()) => f.write_str("ok"),
            Err(refusal) => write!(f, "no {}", refusal.code()),
        }
    }
}

impl fmt::Display for Words<'_> {
    fn fmt<W: fmt::Write>(&self, f: &mut fmt::Formatter<W>) -> fmt::Result {
        for word in self.0 {
            write!(f, " {word}")?;
        }
        Ok(())
    }
}

impl fmt::Display for After {
    fn fmt<W: fmt::Write>(&self, f: &mut fmt::Formatter<W>) -> fmt::Result {
        write!(f, ",{}", self.0)
    }
}

impl fmt::Display for Bundle<'_> {
    fn fmt<W: fmt::Write>(&self, f: &mut fmt::Formatter<W>) -> fmt::Result {
        f.write_joined(self.0.iter(), ".")
    }
}

impl fmt::Display for Made<'_> {
    fn fmt<W: fmt::Write>(&self, f: &mut fmt::Formatter<W>) -> fmt::Result {
        let mut rest: &[u32] = &self.0.handles;
        for len in self.0.lengths.iter().take(self.0.len as usize) {
            let Some((bundle, after)) = rest.split_at_checked(*len as usize) else {
                break;
            };
            write!(f, " {}", Bundle(bundle))?;
            rest = after;
        }
        Ok(())
    }
}

/// Writes the line of a scene that asks whether a list is well formed: the name, and after it the answer.
pub fn test<W: Write>(out: &mut W, name: &[u8], good: bool) -> io::Result<()> {
    out.write_all(name)?;
    writeln!(out, " well formed {}", YesNo(good))
}

/// Writes the bundles in the order in which they are handed out, each after a blank, by handing out those of a copy.
#[tactic(auto, using(crate::proofs::Fronts::front_fits))]
pub fn all_bundles<W: Write>(out: &mut W, b: &Bundles) -> io::Result<()>
    requires { IsBundles b.now }
{
    out.write_all(b" bundles")?;
    let mut rest = *b;
    while let Some(len) = rest.front_len() {
        let mut list = [0; 64];
        rest.pop_front(&mut list);
        write!(out, " {}", Bundle(&list[..len]))?;
    }
    Ok(())
}
