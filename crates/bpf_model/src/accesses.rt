//! The data that loads and stores move.
ghost use Rattle.std.specs.Prelude.{◌≡◌, ◌≤◌};
ghost use Rattle.bpf_model.specs.Accesses.{byte_count, loaded_size};

/// The number of bytes that a load or a store moves.
#[derive(Clone, Copy, Debug, PartialEq, Eq)]
pub enum AccessSize {
    /// 1 byte.
    Byte,
    /// 2 bytes.
    HalfWord,
    /// 4 bytes.
    Word,
    /// 8 bytes.
    DoubleWord,
}

impl AccessSize {
    /// The number of bytes.
    pub fn bytes(self) -> usize
        ensures value { result ≡ byte_count self }
        ensures some { 1 ≤ result }
        ensures bounded { result ≤ 8 }
    {
        match self {
            AccessSize::Byte => 1,
            AccessSize::HalfWord => 2,
            AccessSize::Word => 4,
            AccessSize::DoubleWord => 8,
        }
    }
}

/// What a load reads, and how it extends the value to a word: with zeros, or with the sign of the bytes read.
#[derive(Clone, Copy, Debug, PartialEq, Eq)]
pub enum LoadKind {
    Byte,
    HalfWord,
    Word,
    DoubleWord,
    SignedByte,
    SignedHalfWord,
    SignedWord,
}

impl LoadKind {
    /// The size of the access.
    pub fn size(self) -> AccessSize
        ensures { result ≡ loaded_size self }
    {
        match self {
            LoadKind::Byte | LoadKind::SignedByte => AccessSize::Byte,
            LoadKind::HalfWord | LoadKind::SignedHalfWord => AccessSize::HalfWord,
            LoadKind::Word | LoadKind::SignedWord => AccessSize::Word,
            LoadKind::DoubleWord => AccessSize::DoubleWord,
        }
    }
}
