// The workload: n accounts, each of which sends one message to the next.
ghost use Rattle.std.specs.Prelude.{◌≡◌, ◌≤◌, IfOk, string_bytes};
ghost use Rattle.mw_gen.specs.Workload.{module_text, command_text, workload_text};

use std::alloc::{AllocError, Global};

fn module_bytes() -> &'static [u8]
    ensures { result.now ≡ module_text }
{
    b"omod GEN is
  pr NAT .
  subsort Nat < Oid .
  class Account | bal : Nat .
  msg move : Oid Oid Nat -> Msg .
  op accounts : Nat -> Configuration .
  op moves : Nat Nat -> Configuration .
  vars I J K N B D : Nat .
  eq accounts(0) = none .
  eq accounts(s I) = < I : Account | bal : 100 > accounts(I) .
  eq moves(0, N) = none .
  eq moves(s I, N) = move(I, s I rem N, s (I rem 9)) moves(I, N) .
  crl [move] : move(I, J, K) < I : Account | bal : B > < J : Account | bal : D >
    => < I : Account | bal : sd(B, K) > < J : Account | bal : (D + K) > if K <= B .
endom
"
}

fn command(alloc: Global, n: u32) -> Result<String, AllocError>
    ensures { IfOk result (λ text. string_bytes text ≡ command_text n) }
{
    format!(in alloc; "rewrite accounts({n}) moves({n}, {n}) .\n")
}

/// The module GEN and, on the last line, the command that rewrites `n` accounts and their messages; each line
/// ends with a line feed. Accounts have the numbers 0 to n - 1 and a balance of 100. Each sends one message,
/// which moves 1 to 9 to the next account, the last one's to account 0. So no account runs short, and every
/// order of the messages delivers them all. Who runs it counts 8n + 2 rewrites.
pub fn generate(alloc: Global, n: u32) -> Result<Vec<u8>, AllocError>
    requires some { 2 ≤ n }
    requires few { n ≤ 2000 }
    ensures { IfOk result (λ text. text.items ≡ workload_text n) }
{
    let mut text = module_bytes().to_vec(alloc)?;
    text.extend_from_slice(command(alloc, n)?.as_bytes())?;
    Ok(text)
}
