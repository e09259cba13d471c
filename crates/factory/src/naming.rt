// What an end is called when people read it.
ghost use Rattle.std.specs.Prelude.{◌≡◌};
ghost use Rattle.factory.specs.Naming.{end_name};

use legs::End;

pub fn end_name(end: End) -> &'static str
    ensures { result.now ≡ end_name end }
{
    match end {
        End::Left => "left",
        End::Right => "right",
    }
}
