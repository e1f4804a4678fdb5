//! Cuts a line into its words.
ghost use Rattle.std.specs.Prelude.{◌≡◌, ◌++◌, IfOk, OnOk};
ghost use Rattle.call_list.specs.Line.{blank, ended, words_of, Words, contents};

use std::alloc::{AllocError, Global};

fn is_blank(b: u8) -> bool
    ensures { result ≡ blank b }
{
    matches!(b, b' ' | b'\t' | b'\r')
}

/// Adds a word that has ended, unless it has no bytes.
fn add_word<'a>(words: &mut Vec<&'a [u8]>, word: &'a [u8]) -> Result<(), AllocError>
    ensures { OnOk result (contents words.new.items ≡ contents words.old.items ++ ended word.now) }
{
    if !word.is_empty() {
        words.push(word)?;
    }
    Ok(())
}

/// The words of a line.
// One pass over the bytes. `split` gives a part for each blank, and a search for the ends of each word begins anew: the
// one is slow where blanks are many, the other where words are.
pub fn split_words<'a>(heap: Global, line: &'a [u8]) -> Result<Vec<&'a [u8]>, AllocError>
    ensures value { IfOk result (λ words. contents words.items ≡ words_of line.now) }
    ensures cut { IfOk result (λ words. Words line.now (contents words.items)) }
{
    let mut words = Vec::new(heap);
    let mut start = 0;
    for i in 0..line.len() {
        if is_blank(line[i]) {
            add_word(&mut words, &line[start..i])?;
            start = i + 1;
        }
    }
    add_word(&mut words, &line[start..line.len()])?;
    Ok(words)
}
