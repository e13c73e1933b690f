// Looking for a byte.
ghost use Rattle.std.specs.Prelude.{◌≡◌, ◌≤◌, length};
ghost use Rattle.std.specs.List.{prefix_len};
ghost use Rattle.blocks.specs.Lines.{differs};

// How many bytes stand before the first that is `stop`: all of them, where none is.
pub fn len_before(bytes: &[u8], stop: u8) -> usize
    ensures value { result ≡ prefix_len (differs stop) bytes.now }
    ensures bound { result ≤ length bytes.now }
{
    bytes.iter().take_while(|b| **b != stop).count()
}
