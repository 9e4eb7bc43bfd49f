//! The characters of a statement in columns 7 to 72. `quoted` says whether a character constant is open before the columns.

ghost use Rattle.std.specs.Prelude.{◌≡◌, ◌++◌, IfOk, OnOk};
ghost use Rattle.std.specs.List.{list_all, list_any};
ghost use Rattle.fixed_form.specs.Characters.{is_space, is_tab, is_allowed, upper_case};
ghost use Rattle.fixed_form.specs.Body.{stripped, quoted_after_byte, quoted_after, has_tab};

use fx_lists::Text;
use std::alloc::AllocError as Memory;

fn upper_case(b: u8) -> u8
    ensures { result ≡ upper_case b }
{
    if b >= b'a' && b <= b'z' { b - 32 } else { b }
}

fn quoted_after_byte(quoted: bool, b: u8) -> bool
    ensures { result ≡ quoted_after_byte quoted b }
{
    if b == b'\'' { !quoted } else { quoted }
}

/// Appends the columns to a body, without blanks and in capitals outside character constants; whether a constant is open
/// after them.
pub fn strip(body: &mut Text, quoted: bool, columns: &[u8]) -> Result<bool, Memory>
    ensures ok { OnOk result (body.new ≡ body.old ++ stripped quoted columns.now) }
    ensures quoted { IfOk result (λ q. q ≡ quoted_after quoted columns.now) }
{
    let mut inside = quoted;
    for b in columns {
        if inside {
            body.push(*b)?;
        } else if *b != b' ' {
            body.push(upper_case(*b))?;
        }
        inside = quoted_after_byte(inside, *b);
    }
    Ok(inside)
}

/// Whether the columns have a tab outside character constants.
pub fn has_tab(quoted: bool, columns: &[u8]) -> bool
    ensures { result ≡ has_tab quoted columns.now }
{
    let mut inside = quoted;
    for b in columns {
        if *b == b'\t' && !inside {
            return true;
        }
        inside = quoted_after_byte(inside, *b);
    }
    false
}

/// Whether all bytes are printable ASCII, 32 to 126, or tabs.
pub fn all_allowed(columns: &[u8]) -> bool
    ensures { result ≡ list_all is_allowed columns.now }
{
    columns
        .iter()
        .all(|b| (*b >= b' ' && *b <= b'~') || *b == b'\t')
}

/// Whether the columns have a tab, in a character constant or not.
pub fn any_tab(columns: &[u8]) -> bool
    ensures { result ≡ list_any is_tab columns.now }
{
    columns.iter().any(|b| *b == b'\t')
}

/// Whether all bytes are blanks, which holds of no columns too.
pub fn all_spaces(columns: &[u8]) -> bool
    ensures { result ≡ list_all is_space columns.now }
{
    columns.iter().all(|b| *b == b' ')
}
