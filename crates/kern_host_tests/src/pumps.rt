//! Conversations that are worked out by hand from RFC 23 and the Jupyter messaging document. They end as they
//! should if readers and writers move one byte a call, or fail at any call. How often the gates are polled is
//! counted.

mod conversations;
mod ends;
mod failures;
mod messages;
mod rings;
mod rows;
mod table;
mod talks;
