ghost use Rattle.std.specs.List.{AllPass};
ghost use Rattle.fk_base.specs.declared.grant.Grant.{Grant};
ghost use Rattle.fk_subst.specs.declared.variable.Var.{Var};
ghost use Rattle.fk_subst.specs.Fill.{is_value_byte, value_text, IsGrant};

/// From a packet only digits, small letters, `,`, `.` and `/` come into a command's words: no value has another byte.
pub fn values_are_plain_bytes()
    ensures { (grant : Grant) (var : Var) → IsGrant grant → AllPass is_value_byte (value_text grant var) }
{}
