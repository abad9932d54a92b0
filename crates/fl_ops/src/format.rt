//! The two formats of bytes.
ghost use Rattle.std.specs.Prelude.{◌≡◌};
ghost use Rattle.fl_ops.specs.Format.{format_byte, node_size, last_kind};
ghost use Rattle.fl_ops.specs.Bytes.{name_size, cap_size, body_place};

/// How bytes spell names, and so operations and packets.
#[derive(Clone, Copy, Debug, PartialEq, Eq)]
pub enum Format {
    /// The node in two bytes, and no opened groups. It is read, and never written.
    One,
    /// The node in four bytes. It is read and written.
    Two,
}

impl Format {
    /// Its number in the bytes of an operation.
    pub const fn number(self) -> u8
        ensures { result ≡ format_byte self }
    {
        match self {
            Format::One => 1,
            Format::Two => 2,
        }
    }

    /// How many bytes a node takes.
    pub const fn node_size(self) -> usize
        ensures { result ≡ node_size self }
    {
        match self {
            Format::One => 2,
            Format::Two => 4,
        }
    }

    /// The greatest number of a kind of operations.
    pub const fn last_kind(self) -> u8
        ensures { result ≡ last_kind self }
    {
        match self {
            Format::One => 4,
            Format::Two => 5,
        }
    }

    /// How many bytes a name takes.
    pub const fn name_size(self) -> usize
        ensures { result ≡ name_size self }
    {
        self.node_size() + 4
    }

    /// How many bytes a capability takes.
    pub const fn cap_size(self) -> usize
        ensures { result ≡ cap_size self }
    {
        1 + self.name_size()
    }

    /// Where the body begins in the bytes of an operation: after the format, the kind and the name.
    pub const fn body_place(self) -> usize
        ensures { result ≡ body_place self }
    {
        2 + self.name_size()
    }
}
