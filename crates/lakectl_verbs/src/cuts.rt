//! Texts cut at a mark of ASCII.
ghost use Rattle.std.specs.Prelude.{◌≡◌, ◌<◌, option_map};
ghost use Rattle.lakectl_verbs.specs.Cuts.{cut, strip, cut_seen};

/// What stands before the first mark and behind it, where there is one. It takes no memory.
pub fn cut(text: &str, mark: char) -> Option<(&str, &str)>
    requires { mark < 128 }
    ensures { option_map cut_seen result ≡ cut mark text.now }
{
    text.split_once(mark)
}

/// What stands behind the mark at the front, where it stands there. It takes no memory.
pub fn strip(text: &str, mark: char) -> Option<&str>
    requires { mark < 128 }
    ensures { option_map (λ rest. rest.now) result ≡ strip mark text.now }
{
    text.strip_prefix(mark)
}
