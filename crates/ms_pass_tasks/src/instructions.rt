//! Laws about the lists that are inserted round one instruction that is no phi. The list before it hands over what a
//! callee or caller takes, checks its operands, counts a blind use and defines the mask and the origin of its result; the
//! list after it sets the shadow and the origins of memory, or takes the result of a call. All as the shadow run does.
//! `Stands`: the instruction i stands at h, is taken by the pass, and has `saved` inserted results before it. `Matches`: the words
//! of inserted code are the masks and origins of the shadow run's `values`. `RangedWorld`, `RangedValues`: origins have 32 bits.
ghost use Rattle.std.specs.Prelude.{◌≡◌, ◌≢◌, ◌≤◌, ◌+◌, ℕ, true, false, is_some, List, [], Option, Some, None};
ghost use Rattle.ms_ir.specs.{declared.syntax.Name.{Name}, declared.syntax.Ty.{Ty}, declared.syntax.Operand.{Operand}};
ghost use Rattle.ms_ir.specs.{declared.syntax.Inst.{Inst}, Names.{is_reserved}, Instructions.{operands}};
ghost use Rattle.ms_ir.specs.declared.syntax.Op.TheVariants as op;
ghost use Rattle.ms_runs.specs.{World.{World, Setting, Here, Gives, Does}, Poisoned.{Poisoned}, Masks.{by_formulas}};
ghost use Rattle.ms_runs.specs.Shadow.{poisoned_result};
ghost use Rattle.ms_pass_tasks.specs.{Meaning.{Values, set_result, BelowTasks}, Environments.{Env, Given, Tracked}};
ghost use Rattle.ms_pass_tasks.specs.{PlaneTasks.{saves}, Emit.{before_tasks, after_tasks, own_tasks, start}};
ghost use Rattle.ms_pass_tasks.specs.{Known.{AllApart}, Match.{Matches, RangedWorld, RangedValues, Saved}};
ghost use Rattle.ms_pass_tasks.specs.InstructionLaw.{given_of, Stands, words_at, checked_at, counted_at, acted_at, after_result, BeforeLaw, AfterLaw};

/// The lists read and set no inserted name from a number on, where the names before it are those of the masks and
/// origins of the function's values and of the temporaries so far.
pub fn law_lists_use_known_names()
    ensures before { (s : Setting) (env : Env) (size saved : ℕ) (h : Here) (i : Inst) → Stands s env size saved h i
        → BelowTasks (start (given_of s) i saved) (before_tasks (given_of s) env h i saved) }
    ensures after { (s : Setting) (env : Env) (size saved base : ℕ) (h : Here) (i : Inst) → Stands s env size saved h i
        → saved + saves s.func i.op ≤ base → BelowTasks base (after_tasks (given_of s) env h i saved) }
{}

/// What is inserted before an instruction, from words that match the shadow run's: the run ends as there, by a check or
/// by the instruction itself, or the instruction is due with the same words, and its result will match. What is known to
/// be clean must have the mask 0.
pub fn law_instruction_is_due()
    ensures { (s : Setting) (env : Env) (size saved : ℕ) (h : Here) (i : Inst) (values : Name → Poisoned) (v : Values) (w : World)
        → Stands s env size saved h i → Matches env values v.names → RangedWorld w → RangedValues values
        → ((r : Name) (x : ℕ) (w1 w2 : World) → i.result ≡ Some r → env.clean r ≡ true → checked_at s values h i w ≡ Does w1
        → acted_at s values h i (counted_at s values h i w1) ≡ Gives x w2
        → (poisoned_result by_formulas i.op (words_at s values h i) x w2).mask ≡ 0)
        → BeforeLaw s env saved h i values v w }
{}

/// What is inserted after an instruction that gave a value, and after one that gave none: the shadow and the origins of
/// memory are those of the shadow run, the words still match, and no answer tells whether it has run. The list reads the
/// words of operands, so of what gave a value none may be its own result.
pub fn law_memory_is_marked()
    ensures given { (s : Setting) (env : Env) (size saved next : ℕ) (h : Here) (i : Inst) (values : Name → Poisoned) (before : World) (x : ℕ) (w : World) (names : Name → ℕ)
        → Stands s env size saved h i → saved + saves s.func i.op ≤ next → RangedWorld before → RangedValues values → AllApart i.result (operands i.op)
        → Saved s.func saved i.op (words_at s values h i) before names → acted_at s values h i before ≡ Gives x w
        → Matches env (after_result values i.result (poisoned_result by_formulas i.op (words_at s values h i) x w)) (set_result names i.result x)
        → ((y : Name) → is_reserved y ≡ false → i.result ≢ Some y → names y ≡ (values y).value)
        → AfterLaw s env saved next h i values (after_result values i.result (poisoned_result by_formulas i.op (words_at s values h i) x w)) before x (set_result names i.result x) w }
    ensures done { (s : Setting) (env : Env) (size saved next : ℕ) (h : Here) (i : Inst) (values : Name → Poisoned) (before w : World) (names : Name → ℕ)
        → Stands s env size saved h i → saved + saves s.func i.op ≤ next → RangedWorld before → RangedValues values
        → Saved s.func saved i.op (words_at s values h i) before names → acted_at s values h i before ≡ Does w → Matches env values names
        → AfterLaw s env saved next h i values values before 0 names w }
{}

/// Where slots are filled nothing else stands before the instruction: before a call of a function of the module, and
/// before a return outside `main`.
pub fn law_slots_are_filled_alone()
    ensures calls { (given : Given) (env : Env) (h : Here) (x : Option Name) (ret : Option Ty) (callee : Name) (args : List (Ty × Operand)) (saved : ℕ) (ts : List Tracked)
        → is_some (given.func callee) ≡ true → own_tasks given env h x (op.Call ret callee args) saved ts ≡ [] }
    ensures returns { (given : Given) (env : Env) (h : Here) (v : Option (Ty × Operand)) (saved : ℕ) (ts : List Tracked)
        → h.main ≡ false → own_tasks given env h None (op.Ret v) saved ts ≡ [] }
{}
