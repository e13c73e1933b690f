// What a caller knows of memory that was lent to a tariff and worked on by code for any tariff.
ghost use Rattle.std.specs.Prelude.{◌≡◌, ◌≢◌, drop};
ghost use Rattle.tariffs.specs.Replies.{reply};
ghost use Rattle.tariffs.specs.States.{meant};
ghost use Rattle.tarifftests.specs.declared.tolls.Head.TheVariants.{First};
ghost use Rattle.tarifftests.specs.Tolls.{accepted, outlook, state};

use crate::tolls::Tolls;
use tariffs::{Call, Reply, make_call};

// Makes a call of the tiny tariff over this memory, by way of a function that knows nothing of tolls.
pub fn call_over(memory: &mut [u16], call: Call) -> Reply
    ensures answer { result ≡ reply (meant outlook accepted (state memory.old First)) call }
    ensures beyond { drop 4 memory.new ≡ drop 4 memory.old }
    ensures refused { result ≢ Reply.Answered (Ok tt) → memory.new ≡ memory.old }
{
    let mut tolls = Tolls::new(memory);
    make_call(&mut tolls, call)
}
