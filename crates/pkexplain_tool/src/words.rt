// The command line.
ghost use Rattle.std.specs.Prelude.{◌≡◌};
ghost use Rattle.std.specs.Option.{option_copied};
ghost use Rattle.pkexplain_tool.specs.Words.{root_in};

use pk_types::Text;
use serve_words::is_root;

/// The root that the words name, and `None` exactly where they are not `--root DIR`, with a DIR that
/// isn't empty and doesn't end in `/`.
pub fn root_in(words: &[Text]) -> Option<&Text>
    ensures root { option_copied result ≡ root_in words.now }
{
    match words {
        [option, root] if option.bytes() == b"--root".as_slice() && is_root(root) => Some(root),
        _ => None,
    }
}
