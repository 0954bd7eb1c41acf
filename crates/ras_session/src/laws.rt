//! Laws of the definitions, each the contract of a function that does nothing.
ghost use Rattle.std.specs.Prelude.{◌≡◌, List, ◌++◌};
ghost use Rattle.spec_histories.specs.History.{History, Programs};
ghost use Rattle.spec_histories.specs.Legal.{IsLegal};
ghost use Rattle.spec_histories.specs.Serializable.{ArePrograms, HasRoom};
ghost use Rattle.spec_views.specs.Sessions.{IsQuiet};
ghost use Rattle.spec_sessions.specs.Walk.{ReadScript, Step};
ghost use Rattle.ras_core.specs.States.{AreProgramsOf, CoreState, FIRST_IDENTIFIERS};
ghost use Rattle.ras_session.specs.Prepared.{IsPreparedRequest};
ghost use Rattle.ras_session.specs.Served.{IsServable};
ghost use Rattle.ras_session.specs.Tied.{IsTied, script_in};
ghost use Rattle.ras_session.specs.declared.request.Request.{Request};
ghost use Rattle.ras_session.specs.declared.session.Session.{Session};

/// A request that is prepared for all programs that the workload's texts are may be served.
pub fn prepared_requests_may_be_served()
    ensures { (some : Programs) (state : CoreState) (steps : List Step) (session : Session) (request : Request)
        → AreProgramsOf state.workload some
        → ((programs : Programs) → AreProgramsOf state.workload programs
        → IsPreparedRequest programs (script_in state.workload session.number) state.history steps session request)
        → IsServable state request }
{}

/// Whatever other sessions do, a session stands in the history as it did.
pub fn other_sessions_leave_a_session_tied()
    ensures { (programs : Programs) (script : ReadScript) (more past : History) (steps : List Step) (session : Session)
        → ArePrograms programs FIRST_IDENTIFIERS → HasRoom FIRST_IDENTIFIERS (more ++ past) → IsLegal programs (more ++ past)
        → IsQuiet session.number more past → IsTied programs script past steps session
        → IsTied programs script (more ++ past) steps session }
{}
