ghost use Rattle.std.specs.Prelude.{◌≡◌, ◌↔◌, IsTrue};
ghost use Rattle.std.specs.List.{Contains, list_any};
ghost use Rattle.std.specs.Str.{bytes_eq};
ghost use Rattle.ecd_prelude.specs.Prelude.{float_names};

fn is_listed(name: &[u8]) -> bool
    ensures { result ≡ list_any (bytes_eq name.now) float_names }
{
    name == b"float16".as_slice()
        || name == b"float32".as_slice()
        || name == b"float64".as_slice()
        || name == b"float16-32".as_slice()
        || name == b"float32-64".as_slice()
        || name == b"float".as_slice()
        || name == b"number".as_slice()
        || name == b"time".as_slice()
}

/// Whether this is a name of the prelude that stands for floats: a type without a rule.
pub fn is_float_name(name: &[u8]) -> bool
    ensures { IsTrue result ↔ Contains float_names name.now }
{
    is_listed(name)
}
