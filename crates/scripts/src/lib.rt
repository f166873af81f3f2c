// Which kind of definition a file is, and how an XML one writes its characters. Above it stand the calls that decode texts of both kinds.
#![tactic(auto)]

ghost use Rattle.std.specs.Prelude.{◌≡◌};
ghost use Rattle.scripts.specs.rule.Script.{latin_of, script_of};

use prologs::Prolog;

// Which kind of definition it is; and of one in XML whether it is in ISO-8859-1.
#[derive(Clone, Copy)]
pub struct Script {
    pub xml: bool,
    pub latin: bool,
}

fn is_latin(d: &[u8]) -> bool
    ensures { result ≡ latin_of d.now }
{
    match prologs::read_declaration(d) {
        Prolog::Read { latin, next: _ } => latin,
        Prolog::Fault {
            number: _,
            place: _,
        } => false,
    }
}

pub fn script_of(d: &[u8]) -> Script
    ensures { result ≡ script_of d.now }
{
    let xml = prologs::is_xml(d);
    let latin = is_latin(d);
    Script { xml, latin }
}
