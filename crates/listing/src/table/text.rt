// How a listing prints.
ghost use Rattle.std.specs.Prelude.{◌≡◌, ◌<◌, Some, vec_len};
ghost use Rattle.listing.specs.Listings.{line_at, line_text, listing_text};

use super::{Line, Listing};
use std::fmt;

impl fmt::Display for Line {
    ghost output = { λ l. Some (line_text l) };

    fn fmt<W: fmt::Write>(&self, f: &mut fmt::Formatter<W>) -> fmt::Result {
        let Line {
            binder,
            kind,
            tally,
            span,
            set,
        } = self;
        writeln!(f, "{binder} {kind} {tally} {span} {set}")
    }
}

impl Listing {
    fn line(&self, k: usize) -> Line
        requires { k < vec_len self.now.kinds }
        ensures { result ≡ line_at self.now k }
    {
        Line {
            binder: k,
            kind: self.kinds[k],
            tally: self.tallies[k],
            span: self.spans[k],
            set: self.sets[k],
        }
    }
}

impl fmt::Display for Listing {
    ghost output = { λ l. Some (listing_text l) };

    fn fmt<W: fmt::Write>(&self, f: &mut fmt::Formatter<W>) -> fmt::Result {
        writeln!(f, "plan")?;
        for k in 0..self.kinds.len() {
            let line = self.line(k);
            write!(f, "{line}")?;
        }
        Ok(())
    }
}
