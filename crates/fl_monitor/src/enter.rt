//! Entries of processes by logins.
ghost use Rattle.std.specs.Prelude.{◌≡◌, IfOk, IfErr, Some};
ghost use Rattle.fl_ops.specs.Logins.{IsFirstLogin};
ghost use Rattle.fl_ops.specs.Registry.{Listed};
ghost use Rattle.fl_bench.specs.Jobs.{enter_check};
ghost use Rattle.fl_bench.specs.Secrets.{digest_of};
ghost use Rattle.fl_monitor.specs.parts.Acts.{Enters};

use fl_bench::orders::digest_of_secret;
use fl_bench::owned::Owned;
use fl_jobs::answer::{Outcome, Refusal, Reply};
use fl_jobs::secret::Secret;
use fl_labels::cap::Cap;
use fl_labels::name::Name;
use fl_ops::view::View;

/// The capability of the login of this name, where the secret is that of the login, or else why
/// nobody enters. Takes no memory.
pub(crate) fn check_login<V: View>(
    view: &mut V,
    login: Name,
    secret: Secret,
) -> Result<Cap, Refusal>
    ensures ok { IfOk result (λ cap.
        IsFirstLogin (Listed (V.list view.old)) login cap (digest_of secret)) }
    ensures err { IfErr result (λ f.
        enter_check (Listed (V.list view.old)) login secret (Some f)) }
    ensures same { view.new ≡ view.old }
{
    let Some((cap, digest)) = view.login(login) else {
        return Err(Refusal::NoLogin(login));
    };
    if digest != digest_of_secret(secret) {
        return Err(Refusal::WrongSecret);
    }
    Ok(cap)
}

/// Adds the capability of the login of this name, where the secret is that of the login.
pub(crate) fn enter<V: View>(
    view: &mut V,
    owned: &mut Owned,
    login: Name,
    secret: Secret,
) -> Result<Outcome, Refusal>
    ensures enters { Enters (Listed (V.list view.old)) owned.old login secret result owned.new }
    ensures same { view.new ≡ view.old }
{
    let cap = check_login(view, login, secret)?;
    let Ok(_) = owned.insert(cap) else {
        return Err(Refusal::Memory);
    };
    Ok(Outcome::Reply(Reply::Entered(cap)))
}
