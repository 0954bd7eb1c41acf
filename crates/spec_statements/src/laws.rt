//! Laws of answers, effects and agreement. Each is the contract of a function that does nothing.
ghost use Rattle.std.specs.Prelude.{◌≡◌, ◌⊎◌, ◌<◌, List, ℕ, length, Contains, Ok, Err};
ghost use Rattle.ras_domain.specs.declared.lock.LockName.{LockName};
ghost use Rattle.ras_domain.specs.declared.lock.Mode.{Mode};
ghost use Rattle.ras_syntax.specs.declared.types.SetType.{SetType};
ghost use Rattle.ras_syntax.specs.declared.typed.CheckedSource.{CheckedSource};
ghost use Rattle.spec_statements.specs.Agree.{Agrees};
ghost use Rattle.spec_statements.specs.Reply.{IsSuccess};
ghost use Rattle.spec_statements.specs.Plans.{Plan};
ghost use Rattle.spec_statements.specs.Effects.{reply_of_checked, effect_of_checked};
ghost use Rattle.spec_statements.specs.Phases.{phase_2_list, phase_3_list, phase_4_list, until_condition, until_plans, until_rows};
ghost use Rattle.spec_expressions.specs.Database.{Database};
ghost use Rattle.spec_statements.specs.Locks.{Lock};
ghost use Rattle.spec_statements.specs.LongLists.{IsRefusedAtFirst, IsRefusedFrom};
ghost use Rattle.spec_statements.specs.Machine.{first_list};
ghost use Rattle.ras_syntax.specs.declared.limits.TheConstants.{MAX_LOCKS};
ghost use Rattle.ras_syntax.specs.declared.statement.Statement.{Statement};
ghost use Rattle.spec_statements.specs.Rows.{Row};
ghost use Rattle.spec_statements.specs.Statement.{StatementTree, select};
ghost use Rattle.spec_expressions.specs.Tree.{Tree, Condition};

/// A statement that isn't answered by values or as done leaves the database as it was.
pub fn faults_have_no_effect()
    ensures { (statement : StatementTree) (database : Database)
        → IsSuccess (reply_of_checked statement database) ⊎ (effect_of_checked statement database ≡ database) }
{}

/// A select leaves the database as it was.
pub fn selects_have_no_effect()
    ensures { (body : Tree) (sources : List CheckedSource) (condition : Condition) (length : ℕ) (database : Database)
        → effect_of_checked (record { request = select body sources condition; length = length }) database ≡ database }
{}

/// A list of more than 2^20 locks is refused before it is asked for, and nothing is asked for after
/// it.
pub fn long_lists_are_refused()
    ensures first { (types : List SetType) (statement : Statement) (database : Database)
        → MAX_LOCKS < length (first_list statement) → IsRefusedAtFirst types statement database }
    ensures second { (statement : StatementTree) (database : Database) (rows : List (ℕ × Row))
        → until_rows statement database ≡ Ok rows → MAX_LOCKS < length (phase_2_list statement rows)
        → IsRefusedFrom 2 statement database }
    ensures third { (statement : StatementTree) (database : Database) (rows : List (ℕ × Row))
        → until_condition statement database ≡ Ok rows → MAX_LOCKS < length (phase_3_list statement rows)
        → IsRefusedFrom 3 statement database }
    ensures fourth { (statement : StatementTree) (database : Database) (plans : List Plan)
        → until_plans statement database ≡ Ok plans → MAX_LOCKS < length (phase_4_list statement plans)
        → IsRefusedFrom 4 statement database }
{}

/// Agreement on a list is an equivalence, and it is kept by a list of fewer locks.
pub fn agreement_is_an_equivalence()
    ensures reflexive { (types : List SetType) (list : List Lock) (one : Database) → Agrees types list one one }
    ensures symmetric { (types : List SetType) (list : List Lock) (one other : Database)
        → Agrees types list one other → Agrees types list other one }
    ensures transitive { (types : List SetType) (list : List Lock) (one other third : Database)
        → Agrees types list one other → Agrees types list other third → Agrees types list one third }
    ensures fewer { (types : List SetType) (list fewer : List Lock) (one other : Database)
        → ((lock : Lock) → Contains fewer lock → Contains list lock) → Agrees types list one other
        → Agrees types fewer one other }
{}
