//! Laws: theorems about the definitions alone.
ghost use Rattle.std.specs.Prelude.{◌≡◌, ◌≤◌, ℕ, false};
ghost use Rattle.base_text.specs.Bytes.{Bytes, Text, Frames};
ghost use Rattle.kern_post.specs.declared.post.Post.{Post};
ghost use Rattle.kern_render.specs.Rendering.{IsRendered};
ghost use Rattle.serde_json.specs.Data.{depth};
ghost use Rattle.serde_json.specs.Written.{has_float};
ghost use Rattle.kern_post.specs.declared.content.Content.{Content};
ghost use Rattle.kern_render.specs.Json.{content_json};

/// No number in a content is a float, so each content has one compact text.
#[tactic(auto, using(crate::proofs::FloatLemmas::content_has_no_float))]
pub fn has_no_float()
    ensures { (number : ℕ) (content : Content) → has_float (content_json number content) ≡ false }
{}

/// A content nests at most 6 deep, so JSON readers with a limit accept its text.
#[tactic(auto, using(crate::proofs::DepthLemmas::content_is_shallow))]
pub fn is_shallow()
    ensures { (number : ℕ) (content : Content) → depth (content_json number content) ≤ 6 }
{}

/// The frames of a post are determined by the key and the session.
pub fn has_one_rendering()
    ensures { (key : Bytes) (session : Text) (post : Post) (a b : Frames)
        → IsRendered key session post a → IsRendered key session post b → a ≡ b }
{}
