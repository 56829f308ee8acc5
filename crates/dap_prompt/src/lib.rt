// What an editor's requests ask of a board, and do to it by hand. `answer` has what is shown of expressions,
// scopes, variables and completions, and the values that are set; `prompt` has the words of the debugger's
// prompt; `inputs` has the inputs that commands and written bytes are, and `outcome` what requests do: a run
// goes back with its inputs alone (dap_history). The results are stated functions. Errors come only for want
// of memory.
#![tactic(auto)]

pub mod answer;
pub mod inputs;
pub mod outcome;
pub mod prompt;
