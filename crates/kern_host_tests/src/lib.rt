// What no clause of kern_net and kern_host says: whole conversations over memory, with every byte that is
// written and the end of each thread; and a kernel that serves connections over memory, each reader and each
// writer in a thread of its own, where what each of them was sent is compared to the byte with what a new
// kernel gives if the journal's calls are made on it again. Nothing is here but tests.
#![tactic(auto)]

#[cfg(test)]
mod checks;
#[cfg(test)]
mod pumps;
#[cfg(test)]
mod served;
