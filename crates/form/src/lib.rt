// What every form of a word has in common, over any type of record, any number of editions and any word: definitions and laws alone.
#![tactic(auto)]
