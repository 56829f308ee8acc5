// Laws of the kernel: what holds of every list of calls on it. They are about the definitions that
// kern_core's contracts cite, in the words of "Messaging in Jupyter": which request gets which reply, when an
// execution is answered, to whom a post goes, and which board is shown. Nothing here is called; kern_host and
// lab80_web use what is proved here of joining and of shutting down.
#![tactic(auto)]

pub mod laws;
