// Which bytes make a name.
ghost use Rattle.std.specs.Prelude.{◌≡◌};
ghost use Rattle.name_list.specs.Names.{name_byte, name_bytes, name_long, same_name};

/// The most bytes that a name has.
pub const LONGEST_NAME: usize = 32;

/// Whether a byte may stand in a name: a to z, A to Z, 0 to 9, `_`, `-` and `.`.
pub fn is_name_byte(byte: u8) -> bool
    ensures { result ≡ name_byte byte }
{
    byte.is_ascii_alphanumeric() || matches!(byte, b'_' | b'-' | b'.')
}

/// Whether each of these bytes may stand in a name.
pub fn has_name_bytes(name: &[u8]) -> bool
    ensures { result ≡ name_bytes name.now }
{
    name.iter().all(|byte| is_name_byte(*byte))
}

/// Whether these are as many bytes as a name has, 1 to 32.
pub fn has_name_length(name: &[u8]) -> bool
    ensures { result ≡ name_long name.now }
{
    (1..=LONGEST_NAME).contains(&name.len())
}

/// Whether two names are one.
pub fn same_name(left: &[u8], right: &[u8]) -> bool
    ensures { result ≡ same_name left.now right.now }
{
    left == right
}
