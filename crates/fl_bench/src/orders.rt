//! What an order asks to be made.
ghost use Rattle.std.specs.Prelude.{◌≡◌};
ghost use Rattle.fl_bench.specs.Process.{body_of};
ghost use Rattle.fl_bench.specs.Secrets.{digest_of};

use fl_jobs::job::Order;
use fl_jobs::secret::Secret;
use fl_ops::digest::Digest;
use fl_ops::op::Body;
use sha2::{Digest as Hasher, Sha256};

/// What is kept of a secret: its digest by SHA-256.
pub fn digest_of_secret(secret: Secret) -> Digest
    ensures { result ≡ digest_of secret }
{
    Digest {
        bytes: Sha256::digest(secret.bytes),
    }
}

/// The body of the operation that an order begins. Of a login it takes the digest of its secret.
pub fn body_of_order(order: Order) -> Body
    ensures { result ≡ body_of order }
{
    match order {
        Order::Tag(policy) => Body::MakeTag(policy),
        Order::Group => Body::MakeGroup,
        Order::Put(group, cap) => Body::Put(group, cap),
        Order::MakeLogin(cap, secret) => Body::MakeLogin(cap, digest_of_secret(secret)),
        Order::OpenGroup(group) => Body::Open(group),
    }
}
