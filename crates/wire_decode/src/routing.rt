//! Which route a method and a path name.
ghost use Rattle.std.specs.Prelude.{◌≡◌, IsTrue, IfSome, IfNone, option_map};
ghost use Rattle.std.specs.List.{list_all};
ghost use Rattle.std.specs.Char.{is_ascii_digit};
ghost use Rattle.std.specs.Str.{bytes_eq};
ghost use Rattle.std.specs.Str.Parse.{digits_value};
ghost use Rattle.wire_decode.specs.declared.route.Route.TheVariants.{Challenges, Finalize};
ghost use Rattle.wire_decode.specs.Routes as spec;
ghost use Rattle.wire_decode.specs.Routes.{HasRoute, IsRouteOf};

use crate::route::Route;
use std::str;

/// The most digits of an order's number, so that it is below 2^64.
const NUMBER_LIMIT: usize = 19;

/// The route of a method and a path.
#[tactic(auto, using(crate::proofs::PathLemmas::route_found, crate::proofs::PathLemmas::no_route))]
pub fn find_route(method: &[u8], path: &[u8]) -> Option<Route>
    ensures found { IfSome result (λ route. IsRouteOf method.now path.now route) }
    ensures none { IfNone result (¬ (HasRoute method.now path.now)) }
{
    route_of(method, path)
}

#[tactic(auto, unfolding(crate::specs::Routes::route_of))]
fn route_of(method: &[u8], path: &[u8]) -> Option<Route>
    ensures { result ≡ spec.route_of method.now path.now }
{
    if is_word(method, "POST") {
        route_for(path)
    } else {
        None
    }
}

fn route_for(path: &[u8]) -> Option<Route>
    ensures { result ≡ spec.route_for path.now }
{
    if is_word(path, "/orders") {
        Some(Route::Orders)
    } else if is_word(path, "/observations") {
        Some(Route::Observations)
    } else if is_word(path, "/caa") {
        Some(Route::Caa)
    } else if is_word(path, "/blocks") {
        Some(Route::Blocks)
    } else {
        order_route(order_at("/challenges", path), order_at("/finalize", path))
    }
}

fn order_route(challenges: Option<u64>, finalize: Option<u64>) -> Option<Route>
    ensures { result ≡ spec.or_else (option_map Challenges challenges) (option_map Finalize finalize) }
{
    match (challenges, finalize) {
        (Some(order), _) => Some(Route::Challenges { order }),
        (None, Some(order)) => Some(Route::Finalize { order }),
        (None, None) => None,
    }
}

/// The order's number in a path that ends so.
#[tactic(auto, unfolding(crate::specs::Routes::order_at))]
fn order_at(tail: &str, path: &[u8]) -> Option<u64>
    ensures { result ≡ spec.order_at tail.now path.now }
{
    let rest = behind("/orders/", path)?;
    number_in(in_front(tail, rest)?)
}

/// What stands behind a text at the front.
fn behind<'a>(text: &str, path: &'a [u8]) -> Option<&'a [u8]>
    ensures { option_map (λ rest. rest.now) result ≡ spec.behind text.now path.now }
{
    path.strip_prefix(text.as_bytes())
}

/// What stands in front of a text at the end.
fn in_front<'a>(text: &str, path: &'a [u8]) -> Option<&'a [u8]>
    ensures { option_map (λ front. front.now) result ≡ spec.in_front text.now path.now }
{
    path.strip_suffix(text.as_bytes())
}

fn is_word(text: &[u8], word: &str) -> bool
    ensures { result ≡ bytes_eq text.now word.now }
{
    text == word.as_bytes()
}

/// The number that 1 to 19 digits are.
fn number_in(text: &[u8]) -> Option<u64>
    ensures { result ≡ spec.number_in text.now }
{
    if is_number(text) {
        Some(value_of(text))
    } else {
        None
    }
}

fn is_number(text: &[u8]) -> bool
    ensures { result ≡ spec.is_number text.now }
{
    let digits = text.len();
    1 <= digits && digits <= NUMBER_LIMIT && are_digits(text)
}

fn are_digits(text: &[u8]) -> bool
    ensures { result ≡ list_all is_ascii_digit text.now }
{
    text.iter().all(|byte| byte.is_ascii_digit())
}

fn value_of(digits: &[u8]) -> u64
    requires { IsTrue (spec.is_number digits.now) }
    ensures { result ≡ digits_value 10 digits.now }
{
    let Ok(text) = str::from_utf8(digits) else {
        unreachable!()
    };
    match text.parse::<u64>() {
        Ok(value) => value,
        Err(_) => unreachable!(),
    }
}
