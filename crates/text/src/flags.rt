// Flags in a line, 0 or 1, each behind one space.
ghost use Rattle.std.specs.Prelude.{IfOk};
ghost use Rattle.text.specs.Keyed.{IsFlag};
ghost use Rattle.text.specs.Rows.{IsItem, IsRowBy};
ghost use Rattle.text.specs.Said.{flag};

use crate::rows::numeral;
use std::alloc::{AllocError, Global};

fn flag_of(n: u32) -> Option<bool>
    ensures { IsFlag n result }
{
    match n {
        0 => Some(false),
        1 => Some(true),
        _ => None,
    }
}

fn flag_in(word: &[u8]) -> Option<bool>
    ensures { IsItem flag word.now result }
{
    flag_of(numeral(word)?)
}

// Words that are flags. The loop of `numbers`, over other items: one function of both would be lent what reads an item, and say less of either; and flags that were read as numbers would take four times the room.
pub fn flags(heap: Global, text: &[u8]) -> Result<Option<Vec<bool>>, AllocError>
    ensures { IfOk result (λ flags. IsRowBy flag text.now flags) }
{
    let mut flags = Vec::new(heap);
    if text.is_empty() {
        return Ok(Some(flags));
    }
    let Some(words) = text.strip_prefix(b" ") else {
        return Ok(None);
    };
    for word in words.split(|b| *b == b' ') {
        let Some(willing) = flag_in(word) else {
            return Ok(None);
        };
        flags.push(willing)?;
    }
    Ok(Some(flags))
}
