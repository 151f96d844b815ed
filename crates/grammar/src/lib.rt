#![tactic(auto)]

// The grammar of the text, and that the definition of reading is it: definitions and laws alone.
