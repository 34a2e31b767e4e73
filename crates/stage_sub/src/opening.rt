use elem_core::function::{MapFn, Pred};

/// How substreams open. Rule: Akka Streams 2.6 reference.
#[derive(Drop)]
pub enum OpenBy {
    /// An element that passes the test opens a substream, and is its first.
    Before(Pred),
    /// An element that passes the test is the last of its substream.
    Behind(Pred),
    /// The first element of each key opens a substream; there are at most so many keys.
    Key(u32, MapFn),
}
