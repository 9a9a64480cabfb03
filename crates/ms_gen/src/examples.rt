//! What is drawn for the seed 7, computed by the check. `draw k state bound` is the k-th number drawn from a state on; `sets 4`
//! begins an instruction with the result `%4`.
ghost use Rattle.std.specs.Prelude.{◌≡◌};
ghost use Rattle.ms_bits.specs.declared.operations.BinOp.TheVariants.{And, Or, Xor};
ghost use Rattle.ms_ir.specs.Builders.{i32, local, int, sets, binary};
ghost use Rattle.ms_gen.specs.Generator.{draw, state_after, operation_on};

/// The first two operations of the first function, and the last of the second, whose draws follow those of the first.
pub fn operations()
    ensures number { draw 2 7 65536 ≡ 3391 }
    ensures first { operation_on 3 7 ≡ sets 4 (binary Xor i32 (local 3) (int 3391)) }
    ensures next { operation_on 4 (state_after 2 7) ≡ sets 5 (binary Or i32 (local 4) (int 23441)) }
    ensures last { operation_on 10 (state_after 14 (state_after 16 7)) ≡ sets 11 (binary And i32 (local 10) (int 61853)) }
{}
