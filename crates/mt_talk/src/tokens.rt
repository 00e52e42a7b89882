//! The secrets of a server: digests, each with a role.

ghost use Rattle.std.specs.Prelude.{◌≡◌, ◌↔◌, IsTrue, IfSome, IfNone};
ghost use Rattle.sha2.specs.Sha256.{sha256};
ghost use Rattle.mt_talk.specs.Tokens.{HasRole, HasNone, Admits};

use mt_wire::server::Role;
use sha2::{Digest, Sha256};

/// A secret: of it only the digest is kept.
#[derive(Clone, Copy, Debug)]
pub struct Token {
    role: Role,
    digest: [u8; 32],
}

impl Token {
    /// Returns the token of a secret, which gives this role.
    pub fn new(role: Role, secret: &[u8]) -> Token
        ensures role { result.role ≡ role }
        ensures digest { result.digest ≡ sha256 secret.now }
    {
        Token {
            role,
            digest: Sha256::digest(secret),
        }
    }
}

// Returns whether two digests are the same. All bytes are looked at, whatever they are.
fn is_same(a: &[u8; 32], b: &[u8; 32]) -> bool
    ensures { IsTrue result ↔ (a.now ≡ b.now) }
{
    let mut differ = 0u32;
    for i in 0..32usize {
        differ += u32::from(a[i] != b[i]);
    }
    differ == 0
}

// The role that a secret of this digest gives. All tokens are looked at.
fn role_of(tokens: &[Token], digest: &[u8; 32]) -> Option<Role>
    ensures some { IfSome result (λ role. HasRole tokens.now digest.now role) }
    ensures none { IfNone result (HasNone tokens.now digest.now) }
{
    let mut found = None;
    for token in tokens {
        if is_same(&token.digest, digest) {
            found = Some(token.role);
        }
    }
    found
}

/// Returns the role that a secret gives, if it is that of a token. Without tokens each secret gives each role.
///
/// O(n) in the bytes of the secret and in the tokens. Which token it is, and which bytes of its digest differ, makes no
/// difference in what is done.
pub fn admit(tokens: &[Token], secret: &[u8]) -> Option<Role>
    ensures { Admits tokens.now (sha256 secret.now) result }
{
    if tokens.is_empty() {
        return Some(Role::All);
    }
    let digest: [u8; 32] = Sha256::digest(secret);
    role_of(tokens, &digest)
}
