// The words that all definitions are written in: ranges, tests, counts, sorting (`specs/Lists.antt`), and
// the first fault of a list, which is how document 01's 'Operations and their refusals' is said
// (`specs/Refusal.antt`). Definitions and their laws alone, no code: slices of words are `words`,
// searching them is `search`.
#![tactic(auto)]
