ghost use Rattle.std.specs.Prelude.{◌≡◌};
ghost use Rattle.pkg_exports.specs.Segments.{has_refused_segment, is_refused_segment};

fn is_refused_segment(segment: &str) -> bool
    ensures { result ≡ is_refused_segment segment.now }
{
    segment == "." || segment == ".." || segment.eq_ignore_ascii_case("node_modules")
}

/// Whether some part between slashes is `.`, `..` or, in any ASCII case, `node_modules`.
pub fn has_refused_segment(text: &str) -> bool
    ensures { result ≡ has_refused_segment text.now }
{
    text.split('/').any(|segment| is_refused_segment(segment))
}
