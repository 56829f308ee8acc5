//! What calls on a kernel answer, and the frames of its posts.

use crate::again::{again, fail};
use anyhow::Result;
use base_text::sequence::Frames;
use kern_core::call::{Call, Reply};
use kern_core::fault::KernelFault;
use kern_post::post::{Post, Posts};
use kern_render::rendering::render;
use kern_test_kit::names::reply_name;
use std::alloc::Global;
use std::str;

const KEY: &[u8] = b"key";

const SESSION: &str = "S";

fn tell_fetched(rt: &impl Print, posts: &Posts, next: u64, ended: bool) -> Result<()> {
    rt.print("Fetched")?;
    for post in posts.as_slice() {
        print!(rt; " {}", post.number)?;
    }
    println!(rt; ", next {next}, ended {ended}")?;
    Ok(())
}

fn tell_reply(rt: &impl Print, reply: &Reply) -> Result<()> {
    match reply {
        Reply::Joined { connection, from } => println!(rt; "Joined {connection} {from}")?,
        Reply::Fetched { posts, next, ended } => tell_fetched(rt, posts, *next, *ended)?,
        _ => rt.println(reply_name(reply))?,
    }
    Ok(())
}

/// Tells what a call answered, of posts their numbers.
pub fn tell_answer(rt: &impl Print, answer: &Result<Reply, KernelFault>) -> Result<()> {
    match answer {
        Ok(reply) => tell_reply(rt, reply),
        Err(fault) => {
            println!(rt; "refused: {fault}")?;
            Ok(())
        }
    }
}

fn tell_frames(rt: &impl Print, number: u64, frames: &Frames) -> Result<()> {
    print!(rt; "post {number}:")?;
    for frame in frames.as_slice() {
        match str::from_utf8(frame.as_slice()) {
            Ok(text) => print!(rt; " {text}")?,
            Err(_) => return fail("a frame is no text"),
        }
    }
    println!(rt)?;
    Ok(())
}

fn tell_post(rt: &impl Print, alloc: Global, post: &Post) -> Result<()> {
    let frames = again!(rt, "render", render(alloc, post, KEY, SESSION));
    let told = tell_frames(rt, post.number, &frames);
    drop(frames);
    told
}

/// Tells the frames of the posts that a call gave, if it gave any.
pub fn tell_posts(
    rt: &impl Print,
    alloc: Global,
    answer: &Result<Reply, KernelFault>,
) -> Result<()> {
    let Ok(Reply::Fetched { posts, .. }) = answer else {
        return Ok(());
    };
    for post in posts.as_slice() {
        tell_post(rt, alloc, post)?;
    }
    Ok(())
}

/// The name of a call, with its connection.
pub fn name_of(call: &Call) -> (&'static str, u32) {
    match call {
        Call::Join { .. } => ("Join", 0),
        Call::Leave { connection } => ("Leave", *connection),
        Call::Subscribe { connection, .. } => ("Subscribe", *connection),
        Call::Arrive { connection, .. } => ("Arrive", *connection),
        Call::Slice { .. } => ("Slice", 0),
        Call::Fetch { connection, .. } => ("Fetch", *connection),
    }
}
