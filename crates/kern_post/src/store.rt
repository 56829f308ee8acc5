//! The posts that are kept.
ghost use Rattle.std.specs.Prelude.{◌≡◌, ◌<◌, ◌≤◌, ◌+◌, ◌-◌, ◌^◌, ◌++◌, [], ◌∷◌, List, length, drop};
ghost use Rattle.std.specs.Prelude.{IfOk, OnOk, option_map, slice_get};
ghost use Rattle.std.specs.VecDeque.{deque_capacity};
ghost use Rattle.std.specs.List.{filter};
ghost use Rattle.kern_post.specs.declared.post.Post.{Post};
ghost use Rattle.kern_post.specs.Posts.{Keeps, with_posts, first_kept, posts_between, next_from, is_to};
ghost use Rattle.kern_post.specs.Posts.{kept_post};

use crate::letters::Letters;
use crate::post::{Letter, Post, Posts};
use std::alloc::{AllocError, Global};
use std::collections::VecDeque;
use std::marker::Model;

/// How many posts are kept, at most.
pub const MOST_KEPT: usize = 4096;

/// How many numbers a fetch covers.
pub const FETCHED_AT_ONCE: usize = 64;

/// The last posts, and how many were posted.
#[derive(Drop)]
pub struct Store {
    kept: VecDeque<Post>,
    made: u64,
}

impl Model for Store {
    ghost use Rattle.std.specs.Prelude.{◌≤◌, ◌<◌, ◌^◌, length};
    ghost use Rattle.std.specs.VecDeque.{deque_capacity};
    ghost use Rattle.kern_post.specs.Posts.{StoreState};

    ghost Value = { StoreState };

    ghost view = { λ s. record { kept = s.kept.items; made = s.made } };

    ghost invariant = { λ s. (length s.kept.items ≤ 4096) × (4096 ≤ deque_capacity s.kept)
        × (length s.kept.items ≤ s.made) × (s.made < 2 ^ 63) };
}

fn is_to(post: &Post, connection: u32) -> bool
    ensures { result ≡ is_to connection post.now }
{
    post.letter.envelope.to.as_slice().contains(&connection)
}

fn push_if_to(found: &mut Vec<Post>, post: &Post, connection: u32) -> Result<(), AllocError>
    ensures { OnOk result
        (found.new.items ≡ found.old.items ++ filter (is_to connection) (post.now ∷ [])) }
{
    if is_to(post, connection) {
        found.push(post.copy()?)?;
        return Ok(());
    }
    Ok(())
}

// Drops the first post, if there is one. A function of its own, since a post has many parts to drop, each
// of which is a case of the proof.
fn drop_first(kept: &mut VecDeque<Post>)
    ensures items { kept.new.items ≡ drop 1 kept.old.items }
    ensures capacity { deque_capacity kept.new ≡ deque_capacity kept.old }
{
    kept.pop_front();
}

// Adds a post at the end, and drops the first one if 4,096 are kept already.
fn push_behind(kept: &mut VecDeque<Post>, post: Post)
    requires bound { length kept.old.items ≤ 4096 }
    requires room { 4096 ≤ deque_capacity kept.old }
    ensures items { kept.new.items
        ≡ drop (length kept.old.items - 4095) (kept.old.items ++ post ∷ []) }
    ensures capacity { deque_capacity kept.new ≡ deque_capacity kept.old }
{
    if kept.len() == MOST_KEPT {
        drop_first(kept);
    }
    kept.push_back_reserved(post);
}

impl Store {
    /// No posts. Allocates room for all that are kept.
    pub fn new(alloc: Global) -> Result<Store, AllocError>
        ensures { IfOk result (Keeps []) }
    {
        let kept = VecDeque::with_capacity(alloc, MOST_KEPT)?;
        Ok(Store { kept, made: 0 })
    }

    /// How many posts there were so far, which is the number of the last one.
    pub fn post_count(&self) -> u64
        ensures made { result ≡ self.now.made }
        ensures fits { result < 2 ^ 63 }
    {
        self.made
    }

    /// The number of the first post that is kept; the next post's, if none is.
    pub fn first(&self) -> u64
        ensures place { result + length self.now.kept ≡ self.now.made + 1 }
        ensures first { (posts : List Post) → Keeps posts self.now
            → result ≡ first_kept (length posts) }
    {
        self.made - self.kept.len() as u64 + 1
    }

    /// The post with a number, if it is kept.
    pub fn post(&self, number: u64) -> Option<&Post>
        ensures { (posts : List Post) → Keeps posts self.now
            → option_map (λ post. post.now) result ≡ kept_post number posts }
    {
        let first = self.first();
        if number < first {
            return None;
        }
        self.kept_at((number - first) as usize)
    }

    // The post at an index of those that are kept.
    fn kept_at(&self, place: usize) -> Option<&Post>
        ensures { option_map (λ post. post.now) result ≡ slice_get self.now.kept place }
    {
        self.kept.get(place)
    }

    // Posts one letter, and drops the oldest post if 4,096 are kept already.
    fn push(&mut self, unix_seconds: u64, letter: Letter)
        requires { self.old.made + 1 < 2 ^ 63 }
        ensures made { self.new.made ≡ self.old.made + 1 }
        ensures keeps { (posts : List Post) → Keeps posts self.old
            → Keeps (with_posts unix_seconds (letter ∷ []) posts) self.new }
    {
        self.made += 1;
        let post = Post {
            number: self.made,
            unix_seconds,
            letter,
        };
        push_behind(&mut self.kept, post);
    }

    /// Posts letters in their order, all at one moment, in seconds since 1970. Allocates nothing: the
    /// oldest posts are dropped as soon as 4,096 are kept.
    pub fn push_all(&mut self, unix_seconds: u64, mut letters: Letters)
        requires { self.old.made + length letters < 2 ^ 63 }
        ensures made { self.new.made ≡ self.old.made + length letters }
        ensures keeps { (posts : List Post) → Keeps posts self.old
            → Keeps (with_posts unix_seconds letters posts) self.new }
    {
        while let Some(letter) = letters.pop() {
            self.push(unix_seconds, letter);
        }
    }

    fn len(&self) -> usize
        ensures { result ≡ length self.now.kept }
    {
        self.kept.len()
    }

    // How many of the kept posts come before this number.
    fn skip_count(&self, from: u64) -> usize
        requires { self.now.made < from + length self.now.kept }
        ensures { result + (self.now.made - length self.now.kept) + 1 ≡ from }
    {
        let kept = self.len() as u64;
        (from - (self.made - kept) - 1) as usize
    }

    /// The posts to a connection among the 64 numbers from this one on, which must not be below `first()`.
    /// It may be the number of a post that is still to come.
    pub fn fetch(&self, alloc: Global, connection: u32, from: u64) -> Result<Posts, AllocError>
        requires { self.now.made < from + length self.now.kept }
        ensures { (posts : List Post) → Keeps posts self.now
            → IfOk result (λ found. found ≡ posts_between connection from posts) }
    {
        let start = self.skip_count(from).min(self.len());
        let count = (self.len() - start).min(FETCHED_AT_ONCE);
        let mut found = Vec::new(alloc);
        for k in 0..count {
            let post = &self.kept[start + k];
            push_if_to(&mut found, post, connection)?;
        }
        Ok(Posts::from(found))
    }

    /// The number from which to fetch next: 64 further, but not past the next post's.
    pub fn next(&self, from: u64) -> u64
        ensures { result ≡ next_from from self.now.made }
    {
        let end = from.saturating_add(FETCHED_AT_ONCE as u64);
        from.max(end.min(self.made + 1))
    }
}
