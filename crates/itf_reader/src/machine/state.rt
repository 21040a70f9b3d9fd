// The state of the machine between two lines.
use crate::transfer::Structure;

/// A state between two lines, named by what is open, or by the word that must come next.
#[derive(Clone, Copy)]
pub enum State {
    BeforeScnt,
    /// After SCNT, before the line of four slashes.
    InHead,
    BeforeMtid,
    BeforeModl,
    InModel,
    InTopic,
    /// In a table, before its first object.
    InTable,
    /// In an object, after its line or one of its polylines.
    InObject,
    InPolyline,
    /// In a polyline, after ARCP.
    AfterArcPoint,
    BeforeEnde,
    Done,
    /// The line of that number was at fault, with that code.
    Stopped(u32, Structure),
}
