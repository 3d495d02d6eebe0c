// The program: tables of its own, opened and served standard input.
#![tactic(auto)]

ghost use Rattle.zahrubel.specs.Opens.{Opens};

use lent::Carried;

// What is carried when the tables are opened.
fn open() -> Carried
    ensures { Opens result }
{
    let called = lent_open::open_sized(2048, 1024, 8192);
    called.carried
}

fn main(rt: HostRuntime) {
    let mut entries = lent_entries::vacant_entries();
    let mut pool = [0i32; 8192];
    call_serve::serve(&rt, &mut entries, &mut pool, open());
}
