// The methods of a server, as one list.
ghost use Rattle.std.specs.Prelude.{◌≡◌, ◌≢◌, ◌⊎◌, ◌∷◌, [], List, ℕ, ⊤, map, string_bytes};
ghost use Rattle.std.specs.Prelude.{IfOk, IfNone, IfSome, MatchOption, MatchResult, OnOk, Result};
ghost use Rattle.serde_json.specs.Data.{Data};
ghost use Rattle.serde_json.specs.View.{members_view, view};
ghost use Rattle.lsp_json.specs.JsonRef.{json_data};
ghost use Rattle.lsp_message.specs.Message.{ErrorObject};
ghost use Rattle.lsp_message.specs.View.{outcome_view};
ghost use Rattle.lsp_types.specs.Json.{object_of, with_members};
ghost use Rattle.lsp_acts.specs.Acts.{replies};
ghost use Rattle.lsp_acts.specs.View.{act_view};
ghost use Rattle.lsp_features.specs.Features.{Announced, AnnouncesFirst, IsOutcome};

use crate::feature::{Answers, Feature};
use lsp_acts::Act;
use lsp_calls::RequestRef;
use lsp_json::JsonRef;
use lsp_message::{Request, ResponseError, ResultText};
use lsp_methods::{from_json, result_text};
use serde_json::{Map, Value};
use std::alloc::{AllocError, Global};

/// The methods that a server `S` announces and answers: `(HoverRequest, (DefinitionRequest, ()))`. `()` has none.
pub trait FeatureTable<S> {
    // Whether it has not this method.
    ghost lacks: { List ℕ → Type 0 };

    // Whether these members announce its methods.
    ghost announces: { S → Announced → Type 0 };

    // Whether the server may answer this method with these params so, and change in this manner.
    ghost answers: { S → List ℕ → Data → Result Data ErrorObject → S → Type 0 };

    /// Adds a member for each method.
    ///
    /// `Err` means that an allocation failed.
    fn announce(
        server: &S,
        alloc: Global,
        members: &mut Map<String, Value>,
    ) -> Result<(), AllocError>
        ensures { OnOk result ((added : Announced) × announces server.now added
            × (members_view members.new.entries ≡ with_members (members_view members.old.entries) added)) };

    /// Returns the outcome of a request, or `None` if the table has not its method.
    ///
    /// `Err` means that an allocation failed.
    fn answer(
        server: &mut S,
        alloc: Global,
        request: &RequestRef<'_>,
    ) -> Result<Option<Result<ResultText, ResponseError>>, AllocError>
        ensures none { IfOk result (λ found. IfNone found
            (lacks request.now.method.now × (server.new ≡ server.old))) }
        ensures some { IfOk result (λ found. IfSome found (λ outcome.
            answers server.old request.now.method.now (json_data request.now.params)
            (outcome_view outcome) server.new)) };
}

impl<S> FeatureTable<S> for () {
    ghost lacks = { λ _. ⊤ };

    ghost announces = { λ _ members. members ≡ [] };

    ghost answers = { λ _ _ _ _ _. ⊥ };

    fn announce(
        _server: &S,
        _alloc: Global,
        _members: &mut Map<String, Value>,
    ) -> Result<(), AllocError> {
        Ok(())
    }

    fn answer(
        _server: &mut S,
        _alloc: Global,
        _request: &RequestRef<'_>,
    ) -> Result<Option<Result<ResultText, ResponseError>>, AllocError> {
        Ok(None)
    }
}

impl<S, M, Rest> FeatureTable<S> for (M, Rest)
where
    S: Answers<M>,
    M: Feature<S>,
    Rest: FeatureTable<S>,
{
    ghost lacks = { λ method. (method ≢ M.method) × Rest.lacks method };

    ghost announces = { λ server members. AnnouncesFirst M.member (M.offers server) (Rest.announces server) members };

    ghost answers = { λ old method params outcome new.
        ((method ≡ M.method) × IsOutcome M.Params.reads S.answers M.Result.stands old params outcome new)
        ⊎ ((method ≢ M.method) × Rest.answers old method params outcome new) };

    fn announce(
        server: &S,
        alloc: Global,
        members: &mut Map<String, Value>,
    ) -> Result<(), AllocError> {
        let offer = M::offer(server, alloc)?;
        serde_json::put(members, alloc, M::member(), offer)?;
        Rest::announce(server, alloc, members)
    }

    fn answer(
        server: &mut S,
        alloc: Global,
        request: &RequestRef<'_>,
    ) -> Result<Option<Result<ResultText, ResponseError>>, AllocError> {
        if request.method != M::method() {
            return Rest::answer(server, alloc, request);
        }
        Ok(Some(outcome::<M, S>(server, alloc, &request.params)?))
    }
}

/// Returns the outcome of a request of this method with these params.
fn outcome<M, S>(
    server: &mut S,
    alloc: Global,
    params: &JsonRef<'_>,
) -> Result<Result<ResultText, ResponseError>, AllocError>
where
    S: Answers<M>,
    M: Feature<S>,
    ensures { IfOk result (λ outcome. IsOutcome M.Params.reads S.answers M.Result.stands
        server.old (json_data params.now) (outcome_view outcome) server.new) }
{
    match from_json::<M::Params>(alloc, params)? {
        Ok(params) => {
            let found = server.answer(params)?;
            Ok(Ok(result_text(alloc, &found)?))
        }
        Err(error) => Ok(Err(error)),
    }
}

/// Makes the members of the server's capabilities that announce the methods of a table: an object.
///
/// `Err` means that an allocation failed.
pub fn announce<T, S>(alloc: Global, server: &S) -> Result<Value, AllocError>
where
    T: FeatureTable<S>,
    ensures { IfOk result (λ can. (members : Announced) × T.announces server.now members
        × (view can ≡ object_of members)) }
{
    let mut members = Map::new(alloc);
    T::announce(server, alloc, &mut members)?;
    Ok(Value::Object(members))
}

/// Answers a request whose method is in a table. A request of another method is returned as it is, and the server stays
/// as it is.
///
/// `Err(AllocError)` means that an allocation failed.
pub fn dispatch<T, S, P>(
    alloc: Global,
    server: &mut S,
    request: Request,
) -> Result<Result<Vec<Act<P>>, Request>, AllocError>
where
    T: FeatureTable<S>,
    P: Drop + PartialEq,
    ensures { IfOk result (λ answered. MatchResult answered
        (λ acts. (outcome : Result Data ErrorObject)
        × T.answers server.old (string_bytes request.method) (view request.params) outcome server.new
        × (map (act_view P.eq) acts.items ≡ replies request.id outcome ∷ []))
        (λ same. (same ≡ request) × T.lacks (string_bytes request.method) × (server.new ≡ server.old))) }
{
    match T::answer(server, alloc, &RequestRef::of(&request))? {
        Some(outcome) => {
            let Request { id, method, params } = request;
            drop(method);
            drop(params);
            Ok(Ok(Act::one(alloc, Act::reply_outcome(id, outcome))?))
        }
        None => Ok(Err(request)),
    }
}

/// Does what `dispatch` does for a request whose params are read where they stand. The result is `None` if the table
/// has not the method of the request. Then the server stays as it is.
///
/// `Err(AllocError)` means that an allocation failed.
pub fn dispatch_ref<T, S, P>(
    alloc: Global,
    server: &mut S,
    request: &RequestRef<'_>,
) -> Result<Option<Vec<Act<P>>>, AllocError>
where
    T: FeatureTable<S>,
    P: Drop + PartialEq,
    ensures { IfOk result (λ answered. MatchOption answered
        (T.lacks request.now.method.now × (server.new ≡ server.old))
        (λ acts. (outcome : Result Data ErrorObject)
        × T.answers server.old request.now.method.now (json_data request.now.params) outcome server.new
        × (map (act_view P.eq) acts.items ≡ replies request.now.id.now outcome ∷ []))) }
{
    match T::answer(server, alloc, request)? {
        Some(outcome) => {
            let id = request.id.clone()?;
            Ok(Some(Act::one(alloc, Act::reply_outcome(id, outcome))?))
        }
        None => Ok(None),
    }
}
