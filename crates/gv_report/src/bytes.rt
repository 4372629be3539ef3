//! The bytes of a text.

ghost use Rattle.std.specs.Prelude.{◌≡◌};
ghost use Rattle.gv_report.specs.Report.{bytes_of};

/// The bytes of a whole text: one that stands in the program, or one that was made.
#[derive(Drop)]
pub enum Bytes {
    Fixed(&'static [u8]),
    Made(Vec<u8>),
}

impl Bytes {
    /// The bytes, in their order.
    pub fn as_slice(&self) -> &[u8]
        ensures { result.now ≡ bytes_of self.now }
    {
        match self {
            Bytes::Fixed(bytes) => bytes,
            Bytes::Made(bytes) => bytes.as_slice(),
        }
    }
}
