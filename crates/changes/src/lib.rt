// A change is staged first: which entries get which two new words (`staged`), and which words of the head get which values (`head_words`). No
// budget and no place in the journal is known there. Then one writer stores all of it by the journal, in rising order of word number, under the
// budget (`writer`).
#![tactic(auto)]

pub mod head_words;
pub mod staged;
pub mod writer;
