// The names of classes in globs, as in `[[:alpha:]]`.
ghost use Rattle.std.specs.Prelude.{◌≡◌, map, bytes_eq};
ghost use Rattle.std.specs.Map.{lookup};
ghost use Rattle.cs_listing.specs.Reading.{lent};

/// The named classes of ASCII characters.
pub(crate) static CLASSES: [(&[u8], &[(u8, u8)]); 12] = [
    (b"alnum", &[(b'0', b'9'), (b'A', b'Z'), (b'a', b'z')]),
    (b"alpha", &[(b'A', b'Z'), (b'a', b'z')]),
    (b"blank", &[(b' ', b' '), (b'\t', b'\t')]),
    (b"cntrl", &[(0, 31), (127, 127)]),
    (b"digit", &[(b'0', b'9')]),
    (b"graph", &[(33, 126)]),
    (b"lower", &[(b'a', b'z')]),
    (b"print", &[(32, 126)]),
    (b"punct", &[(33, 47), (58, 64), (91, 96), (123, 126)]),
    (b"space", &[(9, 13), (b' ', b' ')]),
    (b"upper", &[(b'A', b'Z')]),
    (b"xdigit", &[(b'0', b'9'), (b'A', b'F'), (b'a', b'f')]),
];

/// The ASCII characters of a class with this name, if it is one of these.
pub(crate) fn ranges_among<'c>(
    classes: &'c [(&'c [u8], &'c [(u8, u8)])],
    name: &[u8],
) -> Option<&'c [(u8, u8)]>
    ensures { lookup (bytes_eq name.now) (map (λ row. (row.0.now, row.1.now)) classes.now) ≡ lent result }
{
    'classes: for (own, ranges) in classes {
        if name == *own {
            return Some(*ranges);
        }
    }
    None
}
