//! Names that are sockets (RFC 8610, section 3.9).

ghost use Rattle.std.specs.Prelude.{◌≡◌, ◌↔◌, true};
ghost use Rattle.ecd_prelude.specs.Sockets.{is_socket as begins_socket, is_group_socket as begins_group_socket, IsTypeSocket};

/// Whether the name is a socket: whether it begins with `$`. It takes no memory.
pub fn is_socket(name: &[u8]) -> bool
    ensures { result ≡ begins_socket name.now }
{
    matches!(name, [b'$', ..])
}

/// Whether the name is a socket of a group: whether it begins with `$$`. It takes no memory.
pub fn is_group_socket(name: &[u8]) -> bool
    ensures { result ≡ begins_group_socket name.now }
{
    matches!(name, [b'$', b'$', ..])
}

/// Whether the name is a socket of a type: whether it begins with one `$` alone. It takes no memory.
pub fn is_type_socket(name: &[u8]) -> bool
    ensures { (result ≡ true) ↔ IsTypeSocket name.now }
{
    is_socket(name) && !is_group_socket(name)
}
