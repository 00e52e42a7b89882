//! What ends connections that do nothing, and how many there may be.

ghost use Rattle.std.specs.Prelude.{◌≡◌, ◌-◌, ◌&&◌, nat_lt};

/// The limits of connections. A time of 0 is no limit.
#[derive(Clone, Copy, Debug, PartialEq, Eq)]
pub struct Limits {
    /// The most connections that are open at once.
    pub connections: u64,
    /// The most seconds after which a client has said hello, on a server with secrets.
    pub hello: u64,
    /// The most seconds between two frames.
    pub idle: u64,
    /// The most seconds for which a frame may have begun and not ended.
    pub frame: u64,
    /// The most seconds for which a peer may take no byte of what is to go.
    pub write: u64,
    /// The most bytes of input and output that are kept for all connections together; 0 is no limit.
    pub buffers: u64,
    /// The most bytes of the process that may be resident while rows and views are added; 0 is no limit.
    pub memory: u64,
}

/// Returns whether more seconds than this limit have passed since a time.
pub fn is_over(limit: u64, since: u64, now: u64) -> bool
    ensures { result ≡ (nat_lt 0 limit && nat_lt limit (now - since)) }
{
    limit > 0 && now.saturating_sub(since) > limit
}
