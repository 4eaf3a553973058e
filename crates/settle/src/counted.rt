// How many there are of what is listed below.
use std::fmt;

#[derive(Clone, Copy)]
pub(crate) struct Counted {
    pub(crate) count: usize,
    // One of them.
    pub(crate) what: &'static str,
}

impl fmt::Display for Counted {
    fn fmt<W: fmt::Write>(&self, f: &mut fmt::Formatter<W>) -> fmt::Result {
        let what = self.what;
        match self.count {
            0 => write!(f, "no {what}s"),
            1 => write!(f, "1 {what}"),
            count => write!(f, "{count} {what}s"),
        }
    }
}
