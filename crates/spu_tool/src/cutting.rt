//! Texts that are cut in two.

ghost use Rattle.std.specs.Prelude.{◌≡◌, ◌<◌};
ghost use Rattle.spu_tool.specs.Cutting.{cut_at, parts_of};

/// What stands before the first of these characters, and what stands behind it.
pub fn cut_at(text: &str, at: char) -> Option<(&str, &str)>
    requires { at < 128 }
    ensures { parts_of result ≡ cut_at at text.now }
{
    text.split_once(at)
}
