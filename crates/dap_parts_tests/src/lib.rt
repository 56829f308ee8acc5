// The tests of parts of the editors' debugger: a run's history with its searches (dap_history, dap_search),
// and of log messages and of what editors are told (dap_log, dap_json) what no session of an editor shows.
// They stand above the crates that they test, so that each of those is proved once, and in one crate, since
// each further one costs the loading of the libraries below it.
#![tactic(auto)]

#[cfg(test)]
mod checks;
#[cfg(test)]
mod history;
#[cfg(test)]
mod logs;
#[cfg(test)]
mod messages;
