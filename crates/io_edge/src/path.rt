//! The paths of files.
ghost use Rattle.std.specs.Prelude.{◌≡◌, ◌==◌};
ghost use Rattle.std.specs.List.{list_all, slice_split};
ghost use Rattle.io_edge.specs.Path.{is_path_byte, is_path_part, is_path, TestedPaths};

/// The most bytes of a path.
pub const MAX_PATH: usize = 200;

/// Whether these bytes are a path: at most 200 bytes, in parts with `/` between them. A part isn't empty, doesn't
/// begin with `.`, and has only ASCII letters, digits, `_`, `-` and `.`.
pub fn is_path(path: &[u8]) -> bool
    ensures { result ≡ is_path path.now }
{
    path.len() <= MAX_PATH && has_path_parts(path)
}

fn has_path_parts(path: &[u8]) -> bool
    ensures { result ≡ list_all is_path_part (slice_split (λ byte. byte == 47) path.now) }
{
    path.split(|byte| *byte == b'/')
        .all(|part| is_path_part(part))
}

fn is_path_part(part: &[u8]) -> bool
    ensures { result ≡ is_path_part part.now }
{
    !part.is_empty() && part[0] != b'.' && has_path_bytes(part)
}

fn has_path_bytes(part: &[u8]) -> bool
    ensures { result ≡ list_all is_path_byte part.now }
{
    part.iter().all(|byte| is_path_byte(*byte))
}

fn is_path_byte(byte: u8) -> bool
    ensures { result ≡ is_path_byte byte }
{
    byte.is_ascii_alphanumeric() || byte == b'_' || byte == b'-' || byte == b'.'
}

/// The test says which bytes are parts of a path with `/` between them.
pub fn law_path()
    ensures { TestedPaths }
{}
