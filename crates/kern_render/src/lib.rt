// Posts as frames. `content_json` is the JSON object of a content (Jupyter messaging 5.4), its members in
// the order of their keys' bytes and with no float in it, so that it has one compact text. `render` returns
// exactly the frames of a post under a key; the `seq` of a debug reply or event is the number of its post.
// A post has one rendering. `session_name` is the UUID of version 4 of sixteen random bytes. All of this
// fails only if memory runs out.
#![tactic(auto)]

mod causes;
pub mod content;
mod errors;
pub mod laws;
pub mod name;
mod notices;
pub mod rendering;
mod replies;
