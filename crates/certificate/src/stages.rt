// How far the text of a list was read.
use crate::fault::CertFault;
use crate::forms::{Counts, Version};
use crate::notes::Certificate;
use ports::Name;

/// What of a list was read, and so which line comes next.
#[derive(Drop)]
pub enum Stage {
    /// Nothing: the line of the version comes.
    Start,
    /// The line of the number of certificates comes.
    Versioned(Version),
    /// Lines of certificates come, or the end.
    Listing(Listed),
    /// A bad line was read.
    Failed(CertFault),
}

/// The certificates that were read, the open one, and how many come after it.
#[derive(Drop)]
pub struct Listed {
    pub version: Version,
    pub left: u32,
    pub done: Vec<Certificate>,
    pub current: Open,
}

/// What was read of a certificate whose last line was not.
#[derive(Drop)]
pub enum Open {
    Nothing,
    Titled(Names),
    Sized(Body),
}

/// The names of a certificate.
#[derive(Drop)]
pub struct Names {
    pub topic: Name,
    pub table: Name,
    pub attribute: Name,
}

/// A certificate as far as it was read, and how many lines of each kind still come.
#[derive(Drop)]
pub struct Body {
    pub certificate: Certificate,
    pub left: Counts,
}
