// Numbers in a line, each behind one space.
ghost use Rattle.std.specs.Prelude.{IfOk};
ghost use Rattle.text.specs.Rows.{IsNumeral, IsRow};

use std::alloc::{AllocError, Global};

// A row of digits with no zero before it. One too large for its type is the largest that its type has, which is out of every range.
pub fn numeral(word: &[u8]) -> Option<u32>
    ensures { IsNumeral word.now result }
{
    if let [] | [b'0', _, ..] = word {
        return None;
    }
    let mut n: u32 = 0;
    for b in word {
        let digit = char::from(*b).to_digit(10)?;
        n = n.saturating_mul(10).saturating_add(digit);
    }
    Some(n)
}

// Words that are numerals, each behind one space.
pub fn numbers(heap: Global, text: &[u8]) -> Result<Option<Vec<u32>>, AllocError>
    ensures { IfOk result (λ row. IsRow text.now row) }
{
    let mut row = Vec::new(heap);
    if text.is_empty() {
        return Ok(Some(row));
    }
    let Some(words) = text.strip_prefix(b" ") else {
        return Ok(None);
    };
    for word in words.split(|b| *b == b' ') {
        let Some(n) = numeral(word) else {
            return Ok(None);
        };
        row.push(n)?;
    }
    Ok(Some(row))
}
